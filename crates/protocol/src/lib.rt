// The machine as definitions: its calls, operations and answers, histories, and what is proved of them.
#![tactic(auto)]

pub mod answer;
pub mod call;
pub mod doing;
pub mod node;
pub mod operation;
pub mod request;
pub mod retired;
pub mod settings;
pub mod theorems;
pub mod told;
