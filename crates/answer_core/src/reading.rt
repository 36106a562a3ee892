ghost use Rattle.std.specs.Prelude.{◌≡◌, ◌≤◌, None, Some, IfOk, IfErr};
ghost use Rattle.tree_core.specs.Formula.{tree_of};
ghost use Rattle.eval_core.specs.Meaning.{mean};
ghost use Rattle.view_core.specs.Viewed.{value_at};
ghost use Rattle.generator_core.specs.Request.{generated};
ghost use Rattle.request_core.specs.Request.{asked_of};
ghost use Rattle.answer_core.specs.Run.{AnswersRequest, GivesRequest, HasReason, IsAnswered, IsElement, IsGenerated, IsOutput, IsRefused, IsWithin, RefusedBy, TakesNoInput, bad_of, setting_of, trace};
ghost use Rattle.answer_core.specs.Refusal.{CountsRefusal};

use crate::answer::answer_formula;
use crate::command::Command;
use crate::refusal::Refusal;
use device_core::{Source, read_to_end};
use generator_core::{generated_request, summary_line};
use kind_table::CrateKinds;
use print_core::{Answer, answer_line, value_line};
use request_core::{Request, read_request};
use std::alloc::Global;
use tree_core::{Plain, Steps};
use value_core::ArrayNode;
use view_core::value_at;

/// The line that a command sends, or why there is none. It is what `run` writes.
pub fn line_for<S: Source>(
    alloc: Global,
    command: Option<Command>,
    source: &mut S,
) -> Result<Vec<u8>, Refusal>
    ensures line { IfOk result (λ line. IsOutput command
        (trace (S.unread source.old) (S.unread source.new) (S.faults source.old) (S.faults source.new)) line.items) }
    ensures refusal { IfErr result (HasReason command
        (trace (S.unread source.old) (S.unread source.new) (S.faults source.old) (S.faults source.new))) }
    ensures other_words { command ≡ None → result ≡ Err Refusal.Usage }
    ensures untouched { TakesNoInput command → source.new ≡ source.old }
    ensures counted { CountsRefusal (S.faults source.old) (S.faults source.new) result }
{
    match command {
        Some(Command::Answer) => answer(alloc, source),
        Some(Command::Cell { row, column }) => element(alloc, source, row, column),
        Some(Command::Generate(seed)) => generate(alloc, seed),
        None => Err(Refusal::Usage),
    }
}

/// The request that a source has, which is read to its end.
fn asked<S: Source>(alloc: Global, source: &mut S) -> Result<Request, Refusal>
    ensures given { IfOk result (λ request. GivesRequest
        (trace (S.unread source.old) (S.unread source.new) (S.faults source.old) (S.faults source.new)) (asked_of request)) }
    ensures within { IfOk result IsWithin }
    ensures refusal { IfErr result (IsRefused
        (trace (S.unread source.old) (S.unread source.new) (S.faults source.old) (S.faults source.new))) }
    ensures counted { CountsRefusal (S.faults source.old) (S.faults source.new) result }
{
    let bytes = read_to_end(alloc, source)?;
    let request = read_request(alloc, bytes.as_slice())?;
    drop(bytes);
    Ok(request)
}

fn answer<S: Source>(alloc: Global, source: &mut S) -> Result<Vec<u8>, Refusal>
    ensures line { IfOk result (λ line. IsAnswered
        (trace (S.unread source.old) (S.unread source.new) (S.faults source.old) (S.faults source.new)) line.items) }
    ensures refusal { IfErr result (IsRefused
        (trace (S.unread source.old) (S.unread source.new) (S.faults source.old) (S.faults source.new))) }
    ensures counted { CountsRefusal (S.faults source.old) (S.faults source.new) result }
{
    let request = asked(alloc, source)?;
    let answer = answer_to(alloc, &request)?;
    drop(request);
    let line = answer_line(alloc, &answer)?;
    drop(answer);
    Ok(line)
}

/// The line of the element at a row and a column, from 1.
fn element<S: Source>(
    alloc: Global,
    source: &mut S,
    row: u32,
    column: u32,
) -> Result<Vec<u8>, Refusal>
    ensures line { IfOk result (λ line. IsElement row column
        (trace (S.unread source.old) (S.unread source.new) (S.faults source.old) (S.faults source.new)) line.items) }
    ensures refusal { IfErr result (IsRefused
        (trace (S.unread source.old) (S.unread source.new) (S.faults source.old) (S.faults source.new))) }
    ensures counted { CountsRefusal (S.faults source.old) (S.faults source.new) result }
{
    let request = asked(alloc, source)?;
    let element = element_of(alloc, &request, row, column)?;
    drop(request);
    let line = value_line(alloc, element.as_ref())?;
    Ok(line)
}

/// The element of a request's value at a row and a column, from 1.
fn element_of(
    alloc: Global,
    request: &Request,
    row: u32,
    column: u32,
) -> Result<Option<ArrayNode>, Refusal>
    requires { IsWithin request.now }
    ensures element { IfOk result (λ element. element ≡ value_at (mean (setting_of (asked_of request.now)) (tree_of request.now.formula)) row column) }
    ensures refusal { IfErr result (RefusedBy (bad_of (asked_of request.now))) }
{
    let options = request.options;
    let element = value_at(
        alloc,
        &CrateKinds,
        &request.book,
        options.limit,
        request.cell,
        &request.formula,
        row as usize,
        column as usize,
        &mut Steps::new(Plain),
    )?;
    Ok(element)
}

fn generate(alloc: Global, seed: u32) -> Result<Vec<u8>, Refusal>
    ensures line { IfOk result (λ line. IsGenerated seed line.items) }
    ensures refusal { IfErr result (λ refusal. refusal ≡ Refusal.Memory) }
{
    let request = generated_request(alloc, seed)?;
    let line = generated_line(alloc, seed, &request)?;
    Ok(line)
}

/// The line on the answer to the request that a number made.
fn generated_line(alloc: Global, seed: u32, request: &Request) -> Result<Vec<u8>, Refusal>
    requires { asked_of request.now ≡ generated seed }
    ensures line { IfOk result (λ line. IsGenerated seed line.items) }
    ensures refusal { IfErr result (λ refusal. refusal ≡ Refusal.Memory) }
{
    let answer = answer_to(alloc, request)?;
    let line = summary_line(alloc, &request.formula, &answer)?;
    Ok(line)
}

/// The answer to a request, by the table of the crate, and by the rule and the limit that it asks for.
fn answer_to(alloc: Global, request: &Request) -> Result<Answer, Refusal>
    requires { IsWithin request.now }
    ensures answers { IfOk result (AnswersRequest (asked_of request.now)) }
    ensures refusal { IfErr result (RefusedBy (bad_of (asked_of request.now))) }
{
    let answer = answer_formula(
        alloc,
        &CrateKinds,
        &request.book,
        &request.formats,
        &request.locale,
        request.options.rule,
        request.options.limit,
        request.cell,
        &request.formula,
        &mut Steps::new(Plain),
    )?;
    Ok(answer)
}
