//! What is printed of the run of a script.

ghost use Rattle.std.specs.Prelude.{◌≡◌, IfOk, count_by, map};
ghost use Rattle.cm_program.specs.Printed as spec;

use cm_lanes::Said;
use cm_names::{Memory, Text};
use cm_world::{Answer, Refusal};
use std::alloc::Global;

/// Whether something was started, or was so before.
#[tactic(auto, unfolding(crate::specs::Printed::is_started))]
fn is_started(answer: &Result<Answer, Refusal>) -> bool
    ensures { result ≡ spec.is_started answer.now }
{
    matches!(answer, Ok(Answer::Started(_)))
}

/// Whether the answer tells that something was opened, which the summary counts.
#[tactic(auto, unfolding(crate::specs::Printed::is_opened))]
fn is_opened(answer: &Result<Answer, Refusal>) -> bool
    ensures { result ≡ spec.is_opened answer.now }
{
    matches!(answer, Ok(Answer::Opened(_)))
}

/// Whether the answer shows an instance, which the summary counts.
#[tactic(auto, unfolding(crate::specs::Printed::is_shown))]
fn is_shown(answer: &Result<Answer, Refusal>) -> bool
    ensures { result ≡ spec.is_shown answer.now }
{
    matches!(answer, Ok(Answer::Shown(_)))
}

/// How many of the answers tell of a start.
fn count_started(said: &[Said]) -> usize
    ensures { result ≡ count_by (λ s. spec.is_started s.result) said.now }
{
    said.iter().filter(|s| is_started(&s.result)).count()
}

/// How many of the answers tell of an opening.
fn count_opened(said: &[Said]) -> usize
    ensures { result ≡ count_by (λ s. spec.is_opened s.result) said.now }
{
    said.iter().filter(|s| is_opened(&s.result)).count()
}

/// How many of the answers show an instance.
fn count_shown(said: &[Said]) -> usize
    ensures { result ≡ count_by (λ s. spec.is_shown s.result) said.now }
{
    said.iter().filter(|s| is_shown(&s.result)).count()
}

/// The line that counts these answers, with the number of those to uses that were cache hits.
#[tactic(auto, using(crate::proofs::lemmas::lanes::Printing::counted))]
pub fn summary_text(
    alloc: Global,
    instances: usize,
    said: &[Said],
    kept: u64,
) -> Result<Text, Memory>
    ensures { IfOk result (λ text. text ≡ spec.summary_text instances
        (map (λ s. s.result) said.now) kept) }
{
    let started = count_started(said);
    let opened = count_opened(said);
    let shown = count_shown(said);
    let mut text = Text::new(alloc);
    text.push(format_args!("instances {instances} started {started} "))?;
    text.push(format_args!("opened {opened} shown {shown} kept {kept}\n"))?;
    Ok(text)
}
