//! Tests of libraries by what they make public: rows whose texts come from elsewhere. They are a
//! crate of their own, since a crate that has tests is proved twice.
#![tactic(auto)]

#[cfg(test)]
mod escapes;
#[cfg(test)]
mod float_rows;
#[cfg(test)]
mod floats;
#[cfg(test)]
mod places;
#[cfg(test)]
mod records;
#[cfg(test)]
mod rules;
#[cfg(test)]
mod views;
