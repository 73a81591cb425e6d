// No code: annex C's vectors are in specs/, and what holds of them in proofs/. The code's tables are annex_c_tables.
#![tactic(auto)]
