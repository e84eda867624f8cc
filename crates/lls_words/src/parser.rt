// What `clap` reads of the canonical words of a command.
ghost use Rattle.std.specs.Prelude.{◌≡◌, map, string_bytes, false, All, Some, Ok, IfErr, IfOk};
ghost use Rattle.clap.specs.Words.{app_of, first_value, found_of, kind_of, rule_of};
ghost use Rattle.lls_base.specs.Results.{Gives};
ghost use Rattle.lls_words.specs.Canonical.{IsCanonical};
ghost use Rattle.lls_words.specs.Command.{option_name, options_of};
ghost use Rattle.lls_words.specs.Parser.{option_rule, operand_rule, parser_of, with_rules, ReadsBack};
ghost use Rattle.lls_words.specs.Scan.{Scanned};
ghost use Rattle.lls_words.specs.Seen.{seen_given, seen_operand, seen_scan};

use crate::command::{Command, Setting};
use crate::error::WordsError;
use crate::item::Operand;
use crate::scan::{Given, Scan};
use clap::error::ErrorKind;
use clap::{Arg, ArgMatches};
use std::alloc::{AllocError, Global};

// The parser of a command: each option takes one value, and each operand is required.
fn parser<'f>(alloc: Global, command: Command) -> Result<clap::Command<'f>, AllocError>
    ensures { IfOk result (λ parser. app_of parser ≡ parser_of command) }
{
    let parser = clap::Command::new(alloc, "lls")
        .no_binary_name(true)
        .disable_help_flag(true);
    let parser = with_options_of(alloc, parser, command)?;
    with_operands(alloc, parser, command.operand_names())
}

// An option, which takes one value.
fn option_arg<'f>(alloc: Global, setting: Setting) -> Arg<'f>
    ensures rule { rule_of result ≡ option_rule setting }
    ensures local { result.global ≡ false }
{
    let name: &'f str = setting.name();
    Arg::new(alloc, name).long(name)
}

// An operand, which is required.
fn operand_arg<'f>(alloc: Global, name: &'static str) -> Arg<'f>
    ensures rule { rule_of result ≡ operand_rule name.now }
    ensures local { result.global ≡ false }
{
    let name: &'f str = name;
    Arg::new(alloc, name).required(true)
}

// A parser with these options more.
fn with_options<'f>(
    alloc: Global,
    parser: clap::Command<'f>,
    settings: &[Setting],
) -> Result<clap::Command<'f>, AllocError>
    ensures { IfOk result (λ more. app_of more ≡ with_rules (app_of parser.entry) (map option_rule settings.now)) }
{
    let mut parser = parser;
    for setting in settings {
        parser = parser.arg(option_arg(alloc, *setting))?;
    }
    Ok(parser)
}

// A parser with the options of a command more.
fn with_options_of<'f>(
    alloc: Global,
    parser: clap::Command<'f>,
    command: Command,
) -> Result<clap::Command<'f>, AllocError>
    ensures { IfOk result (λ more. app_of more ≡ with_rules (app_of parser.entry) (map option_rule (options_of command))) }
{
    let parser = with_options(alloc, parser, command.rule_options())?;
    with_options(alloc, parser, command.other_options())
}

// A parser with these operands more.
fn with_operands<'f>(
    alloc: Global,
    parser: clap::Command<'f>,
    names: &[&'static str],
) -> Result<clap::Command<'f>, AllocError>
    ensures { IfOk result (λ more. app_of more ≡ with_rules (app_of parser.entry)
        (map operand_rule (map (λ name. name.now) names.now))) }
{
    let mut parser = parser;
    for name in names {
        parser = parser.arg(operand_arg(alloc, *name))?;
    }
    Ok(parser)
}

// Parses words. Canonical ones are refused for want of memory alone.
fn parse<'f>(
    alloc: Global,
    command: Command,
    words: &'f [String],
) -> Result<ArgMatches<'f>, clap::Error>
    ensures found { IfOk result (λ matches. (s : Scanned) → IsCanonical command s (map string_bytes words.entry.now)
        → ReadsBack command s (found_of matches)) }
    ensures memory { IfErr result (λ error. (s : Scanned) → IsCanonical command s (map string_bytes words.entry.now)
        → kind_of error ≡ ErrorKind.OutOfMemory) }
{
    parser(alloc, command)?.try_get_matches_from(words)
}

// An operand, as it was parsed.
fn read_operand<'f>(matches: &ArgMatches<'f>, name: &str, operand: &Operand) -> Operand<'f>
    requires { first_value (found_of matches.now) name.now ≡ Some operand.now.word.now }
    ensures { seen_operand result ≡ seen_operand operand.now }
{
    Operand {
        place: operand.place,
        word: matches.get_str(name).unwrap(),
    }
}

// The operands, as they were parsed.
fn read_operands<'f>(
    alloc: Global,
    matches: &ArgMatches<'f>,
    names: &[&'static str],
    operands: &[Operand],
) -> Result<Vec<Operand<'f>>, AllocError>
    requires { map (first_value (found_of matches.now)) (map (λ name. name.now) names.now)
        ≡ map (λ operand. Some operand.word.now) operands.now }
    ensures { IfOk result (λ read. map seen_operand read.items ≡ map seen_operand operands.now) }
{
    let mut read = Vec::new(alloc);
    for at in 0..operands.len() {
        read.push(read_operand(matches, names[at], &operands[at]))?;
    }
    Ok(read)
}

// An option, with the value that was parsed.
fn read_given<'f>(matches: &ArgMatches<'f>, given: &Given) -> Given<'f>
    requires { first_value (found_of matches.now) (option_name given.now.setting) ≡ Some given.now.value.now }
    ensures { seen_given result ≡ seen_given given.now }
{
    Given {
        place: given.place,
        setting: given.setting,
        value: matches.get_str(given.setting.name()).unwrap(),
    }
}

// The options, with the values that were parsed.
fn read_givens<'f>(
    alloc: Global,
    matches: &ArgMatches<'f>,
    givens: &[Given],
) -> Result<Vec<Given<'f>>, AllocError>
    requires { All (λ given. first_value (found_of matches.now) (option_name given.setting) ≡ Some given.value.now) givens.now }
    ensures { IfOk result (λ read. map seen_given read.items ≡ map seen_given givens.now) }
{
    let mut read = Vec::new(alloc);
    for given in givens {
        read.push(read_given(matches, given))?;
    }
    Ok(read)
}

/// The operands and options as they are parsed from the canonical words.
pub fn read_words<'f>(
    alloc: Global,
    command: Command,
    scan: &Scan,
    words: &'f [String],
) -> Result<Scan<'f>, WordsError>
    requires { IsCanonical command (seen_scan scan.now) (map string_bytes words.now) }
    ensures { Gives WordsError.Memory seen_scan result (Ok (seen_scan scan.now)) }
{
    let matches = match parse(alloc, command, words) {
        Ok(matches) => matches,
        Err(_) => return Err(WordsError::Memory),
    };
    Ok(Scan {
        operands: read_operands(alloc, &matches, command.operand_names(), &scan.operands)?,
        givens: read_givens(alloc, &matches, &scan.givens)?,
    })
}
