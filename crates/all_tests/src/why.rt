//! What is shown of an execution.

mod drawings;
mod growth;
mod made;
mod reasons;
mod searches;
mod texts;
