//! Tests of a mounted tree where memory is refused: each request for memory that a request of a
//! session, a function of `course` or a whole session makes is refused once. They stand here so that
//! no layer is proved a second time for its tests.
#![tactic(auto)]

#[cfg(test)]
mod acts;
#[cfg(test)]
mod client;
#[cfg(test)]
mod courses;
#[cfg(test)]
mod messages;
#[cfg(test)]
mod of_courses_of_files;
#[cfg(test)]
mod of_courses_of_names;
#[cfg(test)]
mod of_courses_of_objects;
#[cfg(test)]
mod of_plain_files;
#[cfg(test)]
mod of_plain_names;
#[cfg(test)]
mod of_session;
#[cfg(test)]
mod of_space;
#[cfg(test)]
mod of_transactions;
#[cfg(test)]
mod of_view_files;
#[cfg(test)]
mod of_view_names;
#[cfg(test)]
mod refused;
#[cfg(test)]
mod texts;
