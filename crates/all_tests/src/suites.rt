//! What is printed of suites, and the models that are shipped.

mod judged;
mod named;
mod outcomes;
mod shipped;
mod told;
