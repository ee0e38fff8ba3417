//! A problem as its value of JSON has it, and the text of statements that it spells.
#![tactic(auto)]

mod object;
mod reading;
mod rule;
mod sheet;
mod spelling;
mod statements;
mod text;

pub use object::ObjectSheet;
pub use reading::built_of_text;
pub use rule::RuleSheet;
pub use sheet::Sheet;
pub use spelling::built;
pub use text::sheet_text;
