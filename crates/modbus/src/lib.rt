// Modbus RTU, as a slave of a controller's M bits and D words. What a request means, and what is answered, is defined in specs/, one file for
// each part of a frame's way. There is no code here.
#![tactic(auto)]
