//! What has to be known of the functions and the nodes of a lifted program where its event program is made. Definitions alone.
#![tactic(auto)]
