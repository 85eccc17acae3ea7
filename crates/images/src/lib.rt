// Tests of images: what is answered to them, whole and broken, and what is printed.
#![tactic(auto)]

#[cfg(test)]
mod answers;
#[cfg(test)]
mod printed;
#[cfg(test)]
mod readings;
