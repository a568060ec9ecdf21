// What the words ask for.
ghost use Rattle.std.specs.Prelude.{◌≡◌, None, Some, IfOk, IsErrOf};
ghost use Rattle.clap.specs.Words.{found_of, rows_of, subcommand_rows_of};
ghost use Rattle.command_line.specs.Asked.{IsCommandInRange, IsUsage, asked, check_of, check_same_of, eval_of, make_of, met, command_named, pair_at, same_of, texts, trial_of, trim_files_at, trim_asked, files_at, verify_of};
ghost use Rattle.command_line.specs.Reading.{ReadsAsked, TakesAs};

use crate::builders::mulver;
use crate::command::Command;
use crate::defaults::CONFLICTS;
use crate::fail::WordsFail;
use crate::overwriting::{are_reused, are_shared, is_overwriting};
use crate::texts::{claim_at, file_at, making_at, point_at, task_at, word_at, word_of};
use clap::ArgMatches;
use clap::error::ErrorKind;
use command_core::{FileName, Names, SameNames, TrimNames};
use std::alloc::Global;

/// What the words of a command line ask for. The first is the program's name, whatever it is.
pub fn read_words(alloc: Global, words: &[String]) -> Result<Command, WordsFail>
    ensures ok { IfOk result (λ command. asked (texts words.now) ≡ Some command) }
    ensures usage { IsErrOf result WordsFail.Usage → IsUsage (texts words.now) }
    ensures range { IfOk result IsCommandInRange }
{
    let found = matches(alloc, words)?;
    met(alloc, &found)
}

// What the fixed command makes of the words.
fn matches<'a>(alloc: Global, words: &'a [String]) -> Result<ArgMatches<'a>, WordsFail>
    ensures ok { IfOk result (TakesAs (texts words.now)) }
    ensures usage { IsErrOf result WordsFail.Usage → asked (texts words.now) ≡ None }
{
    let command = mulver(alloc)?;
    match command.try_get_matches_from(words) {
        Ok(matches) => Ok(matches),
        Err(error) => match error.kind() {
            ErrorKind::OutOfMemory => Err(WordsFail::Memory),
            _ => Err(WordsFail::Usage),
        },
    }
}

// The subcommand that was met.
fn met(alloc: Global, matches: &ArgMatches<'_>) -> Result<Command, WordsFail>
    ensures { ReadsAsked (met (subcommand_rows_of matches.now)) result }
{
    match matches.subcommand() {
        Some((name, inner)) => named(alloc, name, inner),
        None => Err(WordsFail::Usage),
    }
}

fn named(alloc: Global, name: &str, matches: &ArgMatches<'_>) -> Result<Command, WordsFail>
    ensures { ReadsAsked (command_named name.now (rows_of (found_of matches.now))) result }
{
    match name {
        "check" => check(alloc, matches),
        "verify" => verify(alloc, matches),
        "eval" => eval(alloc, matches),
        "make" => make(alloc, matches),
        "trial" => trial(matches),
        "same" => same(alloc, matches),
        "check-same" => check_same(alloc, matches),
        "trim" => trim(alloc, matches),
        _ => Err(WordsFail::Usage),
    }
}

fn check(alloc: Global, matches: &ArgMatches<'_>) -> Result<Command, WordsFail>
    ensures { ReadsAsked (check_of (rows_of (found_of matches.now))) result }
{
    let names = names_at(alloc, matches)?;
    let claim = claim_at(matches).ok_or(WordsFail::Usage)?;
    Ok(Command::Check { names, claim })
}

fn verify(alloc: Global, matches: &ArgMatches<'_>) -> Result<Command, WordsFail>
    ensures { ReadsAsked (verify_of (rows_of (found_of matches.now))) result }
{
    let names = names_at(alloc, matches)?;
    let task = task_at(matches).ok_or(WordsFail::Usage)?;
    if are_shared(&names) {
        return Err(WordsFail::Usage);
    }
    Ok(Command::Verify { names, task })
}

fn names_at(alloc: Global, matches: &ArgMatches<'_>) -> Result<Names<FileName>, WordsFail>
    ensures { ReadsAsked (files_at (rows_of (found_of matches.now))) result }
{
    let graph = file_at(alloc, matches, "graph")?;
    let clauses = file_at(alloc, matches, "clauses")?;
    let algebra = file_at(alloc, matches, "algebra")?;
    Ok(Names {
        graph,
        clauses,
        algebra,
    })
}

fn eval(alloc: Global, matches: &ArgMatches<'_>) -> Result<Command, WordsFail>
    ensures { ReadsAsked (eval_of (rows_of (found_of matches.now))) result }
{
    let graph = file_at(alloc, matches, "graph")?;
    let point = point_at(matches).ok_or(WordsFail::Usage)?;
    Ok(Command::Eval { graph, point })
}

fn make(alloc: Global, matches: &ArgMatches<'_>) -> Result<Command, WordsFail>
    ensures { ReadsAsked (make_of (rows_of (found_of matches.now))) result }
{
    let making = making_at(matches).ok_or(WordsFail::Usage)?;
    let out = file_at(alloc, matches, "out")?;
    Ok(Command::Make { making, out })
}

fn trial(matches: &ArgMatches<'_>) -> Result<Command, WordsFail>
    ensures { ReadsAsked (trial_of (rows_of (found_of matches.now))) result }
{
    let number = word_of(matches, "number").ok_or(WordsFail::Usage)?;
    Ok(Command::Trial { number })
}

fn same(alloc: Global, matches: &ArgMatches<'_>) -> Result<Command, WordsFail>
    ensures { ReadsAsked (same_of (rows_of (found_of matches.now))) result }
{
    let names = pair_at(alloc, matches)?;
    let conflicts = word_at(matches, "conflicts", 0, CONFLICTS).ok_or(WordsFail::Usage)?;
    if is_overwriting(&names) {
        return Err(WordsFail::Usage);
    }
    Ok(Command::Same { names, conflicts })
}

fn check_same(alloc: Global, matches: &ArgMatches<'_>) -> Result<Command, WordsFail>
    ensures { ReadsAsked (check_same_of (rows_of (found_of matches.now))) result }
{
    let names = pair_at(alloc, matches)?;
    Ok(Command::CheckSame { names })
}

fn pair_at(alloc: Global, matches: &ArgMatches<'_>) -> Result<SameNames<FileName>, WordsFail>
    ensures { ReadsAsked (pair_at (rows_of (found_of matches.now))) result }
{
    let graph = file_at(alloc, matches, "graph")?;
    let other = file_at(alloc, matches, "other")?;
    let clauses = file_at(alloc, matches, "clauses")?;
    Ok(SameNames {
        graph,
        other,
        clauses,
    })
}

fn trim(alloc: Global, matches: &ArgMatches<'_>) -> Result<Command, WordsFail>
    ensures { ReadsAsked (trim_asked (rows_of (found_of matches.now))) result }
{
    let names = trimmed_at(alloc, matches)?;
    let claim = claim_at(matches).ok_or(WordsFail::Usage)?;
    if are_reused(&names) {
        return Err(WordsFail::Usage);
    }
    Ok(Command::Trim { names, claim })
}

fn trimmed_at(alloc: Global, matches: &ArgMatches<'_>) -> Result<TrimNames<FileName>, WordsFail>
    ensures { ReadsAsked (trim_files_at (rows_of (found_of matches.now))) result }
{
    let old = names_at(alloc, matches)?;
    let to_clauses = file_at(alloc, matches, "to-clauses")?;
    let to_algebra = file_at(alloc, matches, "to-algebra")?;
    Ok(TrimNames {
        old,
        to_clauses,
        to_algebra,
    })
}
