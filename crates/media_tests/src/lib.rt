// Tests over tables: the media at each failure that they can be told, and a pile of two write buffers.
#![tactic(auto)]

#[cfg(test)]
mod tests;
