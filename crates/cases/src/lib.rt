// 01's cases that are proved: a table in specs/, and one proof for the table.
#![tactic(auto)]
