ghost use Rattle.std.specs.Prelude.{◌≡◌, ◌<◌, ◌^◌, ◌-◌, map};
ghost use Rattle.crell_program.specs.CommandLine.Words.{Print};
ghost use Rattle.crell_program.specs.Command.{files_of, limit_of, most_bytes, shown_command, shown_file};

use crate::command_line::{FileNames, Listing};
use ir_core::Limit;

/// What a file is to hold.
#[derive(Drop, Clone, Copy)]
pub enum Form {
    /// A module's text.
    ModuleText,
    /// Hints, as JSON.
    HintFile,
}

impl Form {
    /// The limit on the bytes of such a file.
    pub fn limit(self) -> Limit
        ensures { result ≡ limit_of self }
    {
        match self {
            Form::ModuleText => Limit::Text,
            Form::HintFile => Limit::Json,
        }
    }
}

/// A file that a command reads.
#[derive(Drop, Clone, Copy)]
pub struct Wanted<'a> {
    pub name: &'a str,
    pub form: Form,
}

impl Wanted<'_> {
    /// How many bytes it may have.
    pub fn most_bytes(&self) -> u64
        ensures value { result ≡ most_bytes (shown_file self.now) }
        ensures small { result < 2 ^ 64 - 1 }
    {
        match self.form {
            Form::ModuleText => Limit::Text.number(),
            Form::HintFile => Limit::Json.number(),
        }
    }
}

/// The files of `check`, in the order in which they are judged.
pub fn files_of_check<'a>(names: &FileNames<'a>) -> [Wanted<'a>; 3]
    ensures { map shown_file result ≡ files_of (shown_command names.now) }
{
    [
        Wanted {
            name: names.source,
            form: Form::ModuleText,
        },
        Wanted {
            name: names.target,
            form: Form::ModuleText,
        },
        Wanted {
            name: names.hints,
            form: Form::HintFile,
        },
    ]
}

/// The file of `defs` or `fmt`, the same for each listing.
pub fn files_of_listing(_listing: Listing, file: &str) -> [Wanted<'_>; 1]
    ensures { map shown_file result ≡ files_of (Print _listing file.now) }
{
    [Wanted {
        name: file,
        form: Form::ModuleText,
    }]
}
