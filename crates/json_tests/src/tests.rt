//! Values of JSON that are written and read, against tables by hand.

mod answer;
mod rows;
