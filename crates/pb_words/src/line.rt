//! The request that a command line makes.
ghost use Rattle.std.specs.Prelude.{◌≡◌, ◌≢◌, IfOk, IsErrOf, None, Some, map, option_and_then, option_map, string_bytes};
ghost use Rattle.clap.specs.Words.{found_of, kind_of, rows_of, subcommand_rows_of};
ghost use Rattle.pb_words.specs.ProbeWords.{probe_in};
ghost use Rattle.pb_words.specs.Parsed.{parsed_of, wanted_as, wanted_in, Tells};
ghost use Rattle.pb_words.specs.Parsed.Wanted.{Probe};

use crate::bench::bench_args_in;
use crate::check::check_args_in;
use crate::decode::decode_args_in;
use crate::encode::encode_args_in;
use crate::fault::WordsFault;
use crate::map::map_args_in;
use crate::optimum::optimum_args_in;
use crate::probe::probe_args_in;
use crate::program::program;
use crate::refute::refute_args_in;
use crate::request::Request;
use crate::wcnf::wcnf_args_in;
use clap::ArgMatches;
use clap::error::ErrorKind;
use std::alloc::Global;

// Returns the request; `Usage` if there is none.
fn asked<'a>(request: Option<Request<'a>>) -> Result<Request<'a>, WordsFault>
    ensures { Tells (option_map wanted_as request.entry) result }
{
    request.ok_or(WordsFault::Usage)
}

// Returns the request of `probe`; `Usage` if a literal is none.
fn probe_request<'a>(alloc: Global, given: &ArgMatches<'a>) -> Result<Request<'a>, WordsFault>
    ensures { Tells (option_map Probe (probe_in (rows_of (found_of given.now)))) result }
{
    match probe_args_in(alloc, given) {
        Ok(probing) => Ok(Request::Probe(probing)),
        Err(fault) => Err(fault),
    }
}

// Returns the request of a command, by its name and its arguments.
fn request_in<'a>(
    alloc: Global,
    name: &str,
    given: &ArgMatches<'a>,
) -> Result<Request<'a>, WordsFault>
    ensures { Tells (wanted_in (name.now, rows_of (found_of given.now))) result }
{
    match name {
        "encode" => asked(encode_args_in(given).map(Request::Encode)),
        "check" => asked(check_args_in(given).map(Request::Check)),
        "decode" => asked(decode_args_in(given).map(Request::Decode)),
        "probe" => probe_request(alloc, given),
        "bench" => asked(bench_args_in(given).map(Request::Bench)),
        "refute" => asked(refute_args_in(given).map(Request::Refute)),
        "map" => asked(map_args_in(given).map(Request::Map)),
        "wcnf" => asked(wcnf_args_in(given).map(Request::Wcnf)),
        "optimum" => asked(optimum_args_in(given).map(Request::Optimum)),
        _ => Err(WordsFault::Usage),
    }
}

// Returns the request of the command that was given; `Usage` if none was.
fn request_by<'a>(alloc: Global, matches: &ArgMatches<'a>) -> Result<Request<'a>, WordsFault>
    ensures { Tells (option_and_then wanted_in (subcommand_rows_of matches.now)) result }
{
    match matches.subcommand() {
        Some((name, given)) => request_in(alloc, name, given),
        None => Err(WordsFault::Usage),
    }
}

// Returns the fault of words that clap refuses: `Usage`, unless memory ran out.
fn fault_of(error: &clap::Error) -> WordsFault
    ensures usage { result ≡ WordsFault.Usage → kind_of error.now ≢ ErrorKind.OutOfMemory }
    ensures memory { result ≡ WordsFault.NoMemory → kind_of error.now ≡ ErrorKind.OutOfMemory }
{
    if error.kind() == ErrorKind::OutOfMemory {
        WordsFault::NoMemory
    } else {
        WordsFault::Usage
    }
}

/// Returns the request that the words make; they begin with the program's name. `Usage` if they make none.
///
/// ```text
/// pbcnf encode a.opb a.cnf --budget 9     Encode, with the budget 9
/// pbcnf encode a.opb a.opb                Usage, since the names are equal
/// ```
pub fn parse<'a>(alloc: Global, words: &'a [String]) -> Result<Request<'a>, WordsFault>
    // A request is exactly the one that the words make by the definition.
    ensures asked { IfOk result (λ r. parsed_of (map string_bytes words.entry.now) ≡ Some (wanted_as r)) }
    // `Usage` is answered only if the words make none.
    ensures usage { IsErrOf result WordsFault.Usage → parsed_of (map string_bytes words.entry.now) ≡ None }
{
    let program = program(alloc)?;
    let matches = match program.try_get_matches_from(words) {
        Ok(matches) => matches,
        Err(error) => return Err(fault_of(&error)),
    };
    request_by(alloc, &matches)
}
