//! Tests of the edges: scripts, transcripts, command lines, devices, whole runs by schedules and by
//! threads, workers, streams of lines, and the one lock.
//! They stand here so that no edge is proved a second time for its tests.
#![tactic(auto)]

#[cfg(test)]
mod halting;
#[cfg(test)]
mod jobs;
#[cfg(test)]
mod of_bounds;
#[cfg(test)]
mod of_device;
#[cfg(test)]
mod of_failures;
#[cfg(test)]
mod of_file_limits;
#[cfg(test)]
mod of_hostile;
#[cfg(test)]
mod of_passes;
#[cfg(test)]
mod of_runner;
#[cfg(test)]
mod of_script;
#[cfg(test)]
mod of_stream;
#[cfg(test)]
mod of_threads;
#[cfg(test)]
mod of_transcript;
#[cfg(test)]
mod of_turnstile;
#[cfg(test)]
mod of_two_threads;
#[cfg(test)]
mod of_words;
#[cfg(test)]
mod of_workers;
#[cfg(test)]
mod texts;
