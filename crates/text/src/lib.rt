// Ports of ion-rust's src/text.
#![tactic(auto)]

pub mod text_formatter;
