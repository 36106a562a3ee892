ghost use Rattle.mark_places.specs.Suffice.{CandidatesAreFew, CandidatesSuffice};

/// Once none of the candidates of a formula can go any more, no `@` at all can.
pub fn candidates_suffice()
    ensures { CandidatesSuffice }
{}

/// There are no more candidates than nodes over which an `@` stands.
pub fn candidates_are_few()
    ensures { CandidatesAreFew }
{}
