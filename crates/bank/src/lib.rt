// Modelled drives of 2 to 12 axes: the instant, the stepping and the easing drive.
#![tactic(auto)]

mod bank;
mod bank_drive;
mod make;

pub use bank::Bank;
