//! Scripts and what they are answered, run as tests through the call from bytes to bytes.
#![tactic(auto)]

#[cfg(test)]
mod parts;
#[cfg(test)]
mod planned;
#[cfg(test)]
mod refused;
