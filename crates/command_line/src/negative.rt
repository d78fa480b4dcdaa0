// A number below 0, which clap takes for an option that it doesn't know.
use crate::table::{Argument, Form, Subcommand};
use std::alloc::{AllocError, Global};

/// An option that takes a number, and the numbers that it takes.
#[derive(Clone, Copy)]
struct NumberOption {
    name: &'static str,
    value: &'static str,
    least: u32,
    most: u32,
}

fn arguments_of(subcommands: &[Subcommand], command: &str) -> &'static [Argument] {
    for subcommand in subcommands {
        if subcommand.name == command {
            return subcommand.arguments;
        }
    }
    &[]
}

fn option_of(arguments: &[Argument], word: &str) -> Option<NumberOption> {
    let name = word.strip_prefix("--")?;
    for argument in arguments {
        if argument.name == name {
            return match argument.form {
                Form::Number { least, most } | Form::Default { least, most, .. } => {
                    Some(NumberOption {
                        name: argument.name,
                        value: argument.value,
                        least,
                        most,
                    })
                }
                Form::Place | Form::Path | Form::Text => None,
            };
        }
    }
    None
}

fn is_below_zero(word: &str) -> bool {
    match word.strip_prefix("-") {
        Some(digits) => !digits.is_empty() && digits.bytes().all(|digit| digit.is_ascii_digit()),
        None => false,
    }
}

/// Whether clap's text is about this number, which it takes for short options and tells by the first of them.
fn is_about(told: &str, number: &str) -> bool {
    match told.strip_prefix("error: unexpected argument '") {
        Some(rest) => {
            let (option, number) = (rest.as_bytes(), number.as_bytes());
            option.len() > 1 && number.len() > 1 && option[..2] == number[..2]
        }
        None => false,
    }
}

/// What is said of such a number behind an option, where clap's text `told` is about it: in the form of clap's own text for
/// a number that is out of its range.
pub fn negative_text(
    alloc: Global,
    subcommands: &[Subcommand],
    words: &[String],
    told: &str,
) -> Result<Option<String>, AllocError> {
    let Some((command, words)) = words.split_first() else {
        return Ok(None);
    };
    let arguments = arguments_of(subcommands, command.as_str());
    let mut before: Option<NumberOption> = None;
    for word in words {
        if is_below_zero(word.as_str()) {
            let Some(option) = before else {
                return Ok(None);
            };
            if !is_about(told, word.as_str()) {
                return Ok(None);
            }
            let text = format!(in alloc;
                "error: invalid value '{word}' for '--{} <{}>': {word} is not in {}..={}\n\nFor more information, try '--help'.\n",
                option.name, option.value, option.least, option.most
            )?;
            return Ok(Some(text));
        }
        before = option_of(arguments, word.as_str());
    }
    Ok(None)
}
