//! Messages, items, outcomes, exchanges and failures as text (`Display`), commands read from their text (`read_command`),
//! and the subcommands `show` and `make` (`do_show`, `do_make`).
//!
//! Files, in reading order: `text`, `name`, `item`, `outcome`, `exchange`, `failure`, `show`, `make`, `command`.
#![tactic(auto)]

mod command;
mod exchange;
mod failure;
mod item;
mod make;
mod name;
mod outcome;
mod show;
mod text;

pub use command::read_command;
pub use exchange::ExchangeText;
pub use failure::{Failure, JournalFault, ScriptLineFault};
pub use item::ItemText;
pub use make::do_make;
pub use name::NameText;
pub use outcome::OutcomeText;
pub use show::do_show;
pub use text::{ByteText, DataText, EndText, HexText, MeaningText, MessageText};
