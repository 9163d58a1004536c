// What the crates over the device's state share: its setters and the laws of its arrays. There is no function here.
#![tactic(auto)]
