//! Writing what is answered: the text of each reply, and bytes to a writer that may fail.
#![tactic(auto)]

mod answers;
mod markets;
mod replies;
mod serials;
mod sinks;
mod texts;
mod writes;

pub use answers::{answer_line, bad_step_line};
pub use markets::{MarketAnswer, market_line};
pub use replies::reply_line;
pub use serials::{SerialAnswer, serial_line};
pub use sinks::Sink;
pub use texts::{MAX_LINE, ReplyBuf};
pub use writes::{WriteFault, write_all_of};
