//! Tests of what the program does with its input, over devices that fail, that give a byte at a time, or that note what they
//! had taken each time that they were asked.
#![tactic(auto)]

#[cfg(test)]
mod check_runs;
#[cfg(test)]
mod devices;
#[cfg(test)]
mod dialogues;
#[cfg(test)]
mod live_dialogues;
#[cfg(test)]
mod partner;
#[cfg(test)]
mod rehearsals;
#[cfg(test)]
mod session_runs;
#[cfg(test)]
mod sweep_runs;
