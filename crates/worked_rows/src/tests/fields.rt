//! What lists, counters of steps, the fields, their rows and matrices, choices of coefficients and bases make of small
//! inputs.
mod bases;
mod choices;
mod counting;
mod elements;
mod lists;
mod matrices;
mod numbered;
mod rows;
mod rows_on_numbers;
mod steps;
