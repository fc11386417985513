// Laws only: how far an application, and a thread, may lag its share.
#![tactic(auto)]
