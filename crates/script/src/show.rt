// What is printed for each thing that is told, without the line's end.
ghost use Rattle.std.specs.Prelude.{◌++◌, Some};
ghost use Rattle.script.specs.Shown.{output_text};
ghost use Rattle.script.specs.Text.{text_of};

use super::Output;
use deals::Answer;
use std::fmt;

impl fmt::Display for Output {
    ghost output = { λ o. Some (output_text o) };

    fn fmt<W: fmt::Write>(&self, f: &mut fmt::Formatter<W>) -> fmt::Result {
        match *self {
            Output::Told { who, answer } => match answer {
                Answer::Done => write!(f, "{who} done"),
                Answer::Missing => write!(f, "{who} missing"),
                Answer::Word(x) => write!(f, "{who} word {x}"),
                Answer::Pair(k, x) => write!(f, "{who} pair {k} {x}"),
                Answer::Point(j) => write!(f, "{who} point {j}"),
                Answer::No(k) => write!(f, "{who} no {k}"),
                Answer::Full => write!(f, "{who} full"),
                Answer::Clash => write!(f, "{who} clash"),
            },
            Output::Busy(who) => write!(f, "{who} busy"),
            Output::BadLine(n) => write!(f, "line {n}?"),
            Output::Cut => write!(f, "cut"),
            Output::Entry(k, x) => write!(f, "{k} {x}"),
            Output::End => write!(f, "end"),
        }
    }
}
