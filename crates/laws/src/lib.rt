// No code: what holds of every frame, whatever the image, the session and the frame are.
#![tactic(auto)]
