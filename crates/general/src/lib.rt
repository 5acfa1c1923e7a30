// Laws of choices, lists, loops and bits that know nothing of the papers; no functions.
#![tactic(auto)]
