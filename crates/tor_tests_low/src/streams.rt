//! The tests of `tor_streams`: how many workers hash at once what readers give that are read once and in order.

mod meets;
