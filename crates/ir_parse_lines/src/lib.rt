//! Lines outside functions, labels and the ends of functions, read from their tokens.
//!
//! `read_top_line` and `read_body_line` give exactly what the tokens of a line stand for, or tell exactly the first
//! that doesn't fit: `specs/Top.antt` and `specs/Fitting.antt` of `ir_grammar` say which one that is. Names are still
//! told by the places where they begin.
#![tactic(auto)]

mod body;
mod functions;
mod globals;
mod initialisers;
mod lines;

pub use lines::{read_body_line, read_top_line};
