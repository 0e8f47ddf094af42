// The text of each answer to a job whose serial value is asked.
ghost use Rattle.std.specs.Prelude.{◌≡◌, ◌<◌, ◌≤◌, ◌++◌, length, codes};
ghost use Rattle.std.specs.Fmt.{signed_decimal};
ghost use Rattle.reply_writer.specs.SerialText.{serial_text};

use crate::replies::reply_line;
use crate::texts::{MAX_LINE, ReplyBuf, push_signed};
use arrayvec::ArrayString;
use job_language::{Error, Reply};

/// The answer to a job whose serial value is asked.
#[derive(Clone, Copy, Debug, PartialEq, Eq)]
pub enum SerialAnswer {
    Value(i64),
    /// Its fuel does not suffice, or it would end in a fault.
    NoValue,
    /// Its value may depend on how its tasks are run.
    NotSerial,
    /// What was asked is no job.
    Refused(Error),
}

/// The line of an answer.
pub fn serial_line(answer: &SerialAnswer) -> ReplyBuf
    ensures { result ≡ serial_text answer.now }
{
    match *answer {
        SerialAnswer::Value(value) => value_line(value),
        SerialAnswer::NoValue => word_line("none"),
        SerialAnswer::NotSerial => word_line("not_serial"),
        SerialAnswer::Refused(error) => reply_line(&Reply::Refused(error)),
    }
}

fn value_line(value: i64) -> ReplyBuf
    ensures { result ≡ codes "{\"serial\":" ++ signed_decimal value ++ codes "}" }
{
    let mut text = ArrayString::<MAX_LINE>::new();
    text.push_str("{\"serial\":");
    push_signed(&mut text, value);
    text.push_str("}");
    ReplyBuf::of(text)
}

fn word_line(word: &str) -> ReplyBuf
    requires { length word.now ≤ 10 }
    ensures { result ≡ codes "{\"serial\":\"" ++ word.now ++ codes "\"}" }
{
    let mut text = ArrayString::<MAX_LINE>::new();
    text.push_str("{\"serial\":\"");
    text.push_str(word);
    text.push_str("\"}");
    ReplyBuf::of(text)
}
