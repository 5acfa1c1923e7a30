// What marking and the view are of the model: laws for the turns that call them.
#![tactic(auto)]
