// What another program would use, each item by its own path and with its whole signature. A call
// here passes its arguments on, a value is made of all its fields, and a match has all cases of its
// enum.
pub mod archives;
pub mod certificates;
pub mod classes;
pub mod components;
pub mod covers;
pub mod files;
pub mod frames;
pub mod graphs;
pub mod key_lines;
pub mod keyed_nets;
pub mod maps;
pub mod numbers;
pub mod placements;
pub mod primitive_nets;
pub mod reports;
pub mod staircases;
pub mod texts;
pub mod vectors;
