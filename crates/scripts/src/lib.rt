// Tests of scripts, from the bytes read to the bytes printed.
#![tactic(auto)]

#[cfg(test)]
mod transcripts;
