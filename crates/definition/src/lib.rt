// Documents 01 and 02 as definitions. They stand in specs/, a file for each section, and their laws in proofs/; nothing runs here.
#![tactic(auto)]
