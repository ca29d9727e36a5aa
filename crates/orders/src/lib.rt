// Order files: bytes that ask for one call after another, and the records that answer them.
#![tactic(auto)]

mod answers;
mod kinds;
mod laws;
mod reading;
mod records;
mod surveys;
mod values;

pub use answers::{AnswerRecord, ClosingRecord, NotEightBytes};
pub use kinds::{Order, OrderFault};
pub use laws::format_stands;
pub use reading::Reader;
pub use surveys::Survey;
pub use values::Answer;
