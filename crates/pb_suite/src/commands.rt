//! The program's commands, each by its specification.

pub mod bench;
pub mod check;
pub mod decode;
pub mod encode;
pub mod map;
pub mod optimum;
pub mod probe;
pub mod refute;
pub mod wcnf;
