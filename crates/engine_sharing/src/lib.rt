//! That a hub may be sent to another thread, and an engine shared by threads and sent: lemmas for whoever starts threads.
#![tactic(auto)]
