// What the commands of wnt share: their arguments, their exit statuses, their help, and forms in buffers.
#![tactic(auto)]

pub mod arguments;
pub mod forms;
pub mod status;
pub mod topic;
