//! Tests of the search through all schedules, by its public calls. Expected answers and numbers of states are worked out by hand
//! or by a second search, `tests/oracle/explore.py`.

mod searches;
