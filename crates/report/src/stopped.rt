//! What stops the program before its end.
ghost use Rattle.report.specs.declared.stopped.Stopped.TheVariants.{Io, Other};
ghost use Rattle.report.specs.Stopped.{debug_text};
ghost use Rattle.std.specs.Prelude.{◌≡◌};

use std::{fmt, io};

/// Output that can't be written, or a refusal where the rest needs an answer. It prints as the error inside.
#[derive(Drop)]
pub enum Stopped {
    Io(io::Error),
    Other(anyhow::Error),
}

impl From<io::Error> for Stopped {
    ghost from_gives = { λ error s. s ≡ Io error };

    fn from(error: io::Error) -> Stopped {
        Stopped::Io(error)
    }
}

impl From<anyhow::Error> for Stopped {
    ghost from_gives = { λ error s. s ≡ Other error };

    fn from(error: anyhow::Error) -> Stopped {
        Stopped::Other(error)
    }
}

impl fmt::Debug for Stopped {
    ghost debug_output = { debug_text };

    fn fmt<W: fmt::Write>(&self, f: &mut fmt::Formatter<W>) -> fmt::Result {
        match self {
            Stopped::Io(error) => fmt::Debug::fmt(error, f),
            Stopped::Other(error) => fmt::Debug::fmt(error, f),
        }
    }
}
