// The bench's line: an answer, and for an ending the steps and the words of the main stack.
ghost use Rattle.std.specs.Prelude.{Some};

use model::Answer;
use std::fmt;

// Words as signed numbers, with commas.
#[derive(Clone, Copy)]
struct Words<'a>(&'a [u32]);

impl fmt::Display for Words<'_> {
    ghost use Rattle.show.specs.Line.{words_text};

    ghost output = { λ words. Some (words_text words.0.now) };

    fn fmt<W: fmt::Write>(&self, f: &mut fmt::Formatter<W>) -> fmt::Result {
        let Some((first, rest)) = self.0.split_first() else {
            return Ok(());
        };
        write!(f, "{}", first.cast_signed())?;
        for word in rest {
            write!(f, ",{}", word.cast_signed())?;
        }
        Ok(())
    }
}

// An answer, beside the words that it left on the main stack.
#[derive(Clone, Copy)]
pub struct Line<'a> {
    pub answer: Answer,
    pub main: &'a [u32],
}

impl fmt::Display for Line<'_> {
    ghost use Rattle.show.specs.Line.{line_text};

    ghost output = { λ line. Some (line_text line.answer line.main.now) };

    fn fmt<W: fmt::Write>(&self, f: &mut fmt::Formatter<W>) -> fmt::Result {
        let main = Words(self.main);
        match self.answer {
            Answer::Passed => write!(f, "passed"),
            Answer::Ready => write!(f, "ready"),
            Answer::Finished(steps) => write!(f, "finished steps={steps} main={main}"),
            Answer::Spent(steps) => write!(f, "spent steps={steps} main={main}"),
            Answer::Uncaught(code, place, steps) => {
                let code = code.cast_signed();
                write!(f, "uncaught {code} at {place} steps={steps} main={main}")
            }
            Answer::Refused(number, place) => write!(f, "refused {number} at {place}"),
        }
    }
}
