//! What people and programs read of a file: numbers, times, codes and reasons as texts, and reports as JSON.
#![tactic(auto)]

mod clock;
mod code;
mod date;
mod decimal_time;
mod fraction;
mod grouped;
mod json;
mod json_writer;
mod reason;
mod thousandths;

pub use clock::{Clock, TickClock, TickSeconds, shown_ticks_come_back, tick_decimals};
pub use code::{Code, Visible};
pub use date::Date;
pub use decimal_time::DecimalTime;
pub use grouped::{Grouped, grouped_length};
pub use json::{JsonDocument, Whole, json_text};
pub use json_writer::JsonWriter;
pub use reason::{Reason, reason_text};
pub use thousandths::Thousandths;
