ghost use Rattle.intersect.specs.ExportsComeBack.{ExportsComeBack};

/// The import of each export of a formula that is its own import is that formula again, flags aside.
pub fn exports_come_back()
    ensures { ExportsComeBack }
{}
