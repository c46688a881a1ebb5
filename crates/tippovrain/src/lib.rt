// The C interface, include/tippovrain.h: each function is the call of its name, with every number of its answer in a place of its own.
#![tactic(auto)]

mod answers;
mod colours;
mod defects;
mod gains;
mod jobs;
mod levels;
mod marks;
mod pairs;
mod patterns;
mod raw10;
mod shadings;
mod stacks;
