//! What is told of wrong texts.

mod asked;
mod models;
mod rules;
mod texts;
