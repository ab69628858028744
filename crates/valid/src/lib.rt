// Which designs there is a list for that the reader accepts, and which list it is.
#![tactic(auto)]
