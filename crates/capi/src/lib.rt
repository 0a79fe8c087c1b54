//! SSS for C: the functions of include/futsamboly.h, each in one call over memory that the caller lends.
#![tactic(auto)]

mod answer;
mod issuer;
mod listing;
mod opening;
mod receiver;
mod sealing;
mod standing;
mod table;
